// Values of other crates as answers write them.

// A value in words: it has a Display for each type of another crate that an answer tells; bytes are a message.
#[derive(Clone, Copy)]
pub(crate) struct InWords<T>(pub(crate) T);
