/// What mounting found: how many commands the file has, and how many of them stand after its last
/// image and were carried out again; all of them, where it has none.
#[derive(Clone, Copy, PartialEq, Eq)]
pub struct Opened {
    pub commands: u64,
    pub replayed: u64,
}
