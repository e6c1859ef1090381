//! Laws of logins, from the definitions alone: each function does nothing, and its contract is the law.
ghost use Rattle.acap_login.specs.Laws.{ChallengeLaw, CutLaw, DigestLaw, ExchangeExample};
ghost use Rattle.acap_login.specs.Laws.{HashExamples, SecretExamples, AcceptedExamples, RefusedExamples};

/// Challenges with different nonces, seconds or hosts differ.
#[tactic(auto, using(crate::proofs::ChallengeLemmas::challenge_law))]
pub fn challenge_law()
    ensures { ChallengeLaw }
{}

/// A text has one last SP, and what a user answers to a challenge is cut there.
#[tactic(auto, using(crate::proofs::CutLemmas::cut_law))]
pub fn cut_law()
    ensures { CutLaw }
{}

/// A digest has 32 digits, and no SP is among them.
#[tactic(auto, using(crate::proofs::CutLemmas::digest_law))]
pub fn digest_law()
    ensures { DigestLaw }
{}

/// The challenge and the digest of RFC 2195 section 2.
#[tactic(auto, using(crate::proofs::Examples::exchange_example))]
pub fn exchange_example()
    ensures { ExchangeExample }
{}

/// The seven digests that RFC 2202 section 2 has for HMAC with MD5.
#[tactic(auto, using(crate::proofs::Examples::hash_examples))]
pub fn hash_examples()
    ensures { HashExamples }
{}

/// Digests under secrets of one block, of an octet more, and of many.
#[tactic(auto, using(crate::proofs::Examples::secret_examples))]
pub fn secret_examples()
    ensures { SecretExamples }
{}

/// Answers that are accepted, and for whom.
#[tactic(auto, using(crate::proofs::Answers::accepted_examples))]
pub fn accepted_examples()
    ensures { AcceptedExamples }
{}

/// Answers that are accepted for nobody, one for each rule.
#[tactic(auto, using(crate::proofs::Answers::refused_examples))]
pub fn refused_examples()
    ensures { RefusedExamples }
{}
