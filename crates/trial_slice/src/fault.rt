// Why a question about an evaluation has no answer.
use trial_keeping::TrialFault;

/// Why a question about an evaluation of a trial has no answer.
#[derive(Clone, Copy, Debug)]
pub enum EvaluationFault {
    /// The trial was not loaded, or memory ran out.
    Trial(TrialFault),
    /// The trial has no such evaluation.
    NoEvaluation,
}
