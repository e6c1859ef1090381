//! A law of ranks: the function does nothing, and its contract is the law.
ghost use Rattle.acap_ordmap.specs.RankLaws.{RankLaw};

/// What ranks are and what edits do, in any list of items that ascend: the item at the rank of a key that is there is
/// that key's, ranks ascend with keys, and what is put or taken stands at its rank.
#[tactic(auto, using(crate::proofs::RankLaws::rank_holds))]
pub fn rank_law<T: Ord>()
    ensures { RankLaw T.cmp }
{}
