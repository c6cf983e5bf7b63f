//! What is asked of a run of a function.

/// A function by its name, the text of its arguments, if any, and the most steps that its run may make.
#[derive(Clone, Copy, Debug)]
pub struct Request<'w> {
    pub name: &'w [u8],
    pub args: Option<&'w [u8]>,
    pub most: u64,
}
