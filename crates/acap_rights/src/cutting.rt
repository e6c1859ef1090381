//! Cuts a string at an octet.
ghost use Rattle.std.specs.Prelude.{◌≡◌, ◌∷◌, [], ◌==◌, ◌<◌, length, IfSome, IfNone};
ghost use Rattle.std.specs.List.{position};
ghost use Rattle.acap_rights.specs.Pairs.{parts_by};

// Where the octet stands first.
fn place_of(text: &[u8], octet: u8) -> Option<usize>
    ensures value { result ≡ position (λ x. x == octet) text.now }
    ensures within { IfSome result (λ at. at < length text.now) }
{
    text.iter().position(|x| *x == octet)
}

/// What stands before the first such octet and what after it.
#[tactic(auto, using(crate::proofs::Cuts::parts_at, crate::proofs::Cuts::parts_none))]
pub(crate) fn cut_at(text: &[u8], octet: u8) -> Option<(&[u8], &[u8])>
    ensures none { IfNone result (parts_by octet text.now ≡ text.now ∷ []) }
    ensures some { IfSome result (λ cut. parts_by octet text.now ≡ cut.0.now ∷ parts_by octet cut.1.now) }
{
    match place_of(text, octet) {
        Some(at) => {
            let (part, _) = text.split_at(at);
            let (_, behind) = text.split_at(at + 1);
            Some((part, behind))
        }
        None => None,
    }
}
