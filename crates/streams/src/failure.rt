// What a program cannot go on without.
use thiserror::Error;

#[derive(Clone, Copy, Debug, PartialEq, Eq, Error)]
pub enum Failure {
    #[error("cannot read standard input")]
    Read,
    #[error("cannot write standard output")]
    Write,
}
