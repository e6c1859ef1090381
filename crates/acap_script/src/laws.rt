//! Examples of script lines: the function does nothing, and its contract is the law.
ghost use Rattle.acap_script.specs.Examples.{LineExamples};

/// What the text of a line says, a row for each word, for each bound of a number, and for what is none.
#[tactic(auto, using(crate::proofs::Examples::line_examples))]
pub fn line_examples()
    ensures { LineExamples }
{}
