//! Worked rules: small files and what they mean, as facts about the definitions.
#![tactic(auto)]

ghost use Rattle.worked.specs.SaveRemove.{MeansRule, TellsApart};

/// Four edges, 0 by 0 to 1, 0 by 1 to 2, 1 by 0 to 0, 1 by 1 to 2, mean the same automaton as the
/// table with states 0 → (1, 2), 1 → (0, 2), 2 → (2, 2): both files mean the one rule.
#[tactic(auto, using(crate::proofs::SaveRemoveFacts::means_rule))]
pub fn four_edges_mean_the_table()
    ensures { MeansRule }
{}

/// No word tells states 0 and 1 of that rule apart, the empty word tells 0 and 2 apart, and every
/// state is reached.
#[tactic(auto, using(crate::proofs::SaveRemoveFacts::tells_apart))]
pub fn two_of_three_states_are_equivalent()
    ensures { TellsApart }
{}
