/// How a line ends: in a newline, or in a carriage return and a newline.
#[derive(Clone, Copy, PartialEq, Eq, Debug)]
pub enum Ending {
    Newline,
    ReturnNewline,
}
