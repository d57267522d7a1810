/// What the markers are labelled with: the names of the three sheets, each given or not. A given name may be empty.
#[derive(Clone, Copy, Debug)]
pub struct Labels<'a> {
    pub ancestor: Option<&'a [u8]>,
    pub current: Option<&'a [u8]>,
    pub other: Option<&'a [u8]>,
}
