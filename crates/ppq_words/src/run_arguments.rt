//! The arguments of the command `run`.
use crate::GivenSizes;
use ppq_script::Form;

/// What the words of the command `run` say. The names are borrowed from the words.
#[derive(Clone, Copy, Debug, PartialEq, Eq)]
pub struct RunArguments<'a> {
    /// The name of the script. It is not empty and does not begin with `-`.
    pub script: &'a str,
    /// The name of the device. It is not empty and does not begin with `-`.
    pub device: &'a str,
    /// The sizes of the queue as they are given; how wide its records are is told by the script.
    pub given: GivenSizes,
    /// The form of the output.
    pub form: Form,
}
