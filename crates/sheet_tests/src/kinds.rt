use crate::ask::shows_two;
use crate::label::LabelSheet;
use sheet::total::bytes_in;

#[test]
fn a_kind_of_another_crate(rt: HostRuntime) {
    assert!(rt; shows_two(&LabelSheet, b"7\n", b"ok"));
    assert!(rt; bytes_in(&LabelSheet) == 4);
}
