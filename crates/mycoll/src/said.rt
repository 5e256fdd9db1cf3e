use mc_base::Refusal;
use mc_values::Answer;

/// What a statement is answered with.
#[derive(Drop)]
pub enum Said {
    /// A table.
    Table(Answer),
    /// The statement is refused.
    Refused(Refusal),
    /// Nothing: the statement has no answer to be written.
    Nothing,
}
