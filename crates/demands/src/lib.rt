// The customer's demands, as theorems about the reader that the crates below build. No code stands here.
//
// | Of | Statement | Theorem |
// |---|---|---|
// | demand 1: the numbers of each call, the offset of a bad field, what a refusal leaves, how far an answer moves, the same every time | specs/Demand1 | demand_1_holds |
// | that every number of demand 1 is given | proofs/EveryNumber | by_wire, by_book, by_message, given_10, by_run, by_page |
// | demand 2: levels, effects, isolation, case D's rule, executions at the price of the order; round trips | specs/Demand2 | demand_2_holds, round_trips |
// | demand 3: over views; by any calls; from bytes | specs/Demand3 | demand_3_over_views, demand_3_holds, demand_3_from_bytes |
// | demand 3 clause by clause, in the customer's order | specs/Demand3 | nothing_lost, nothing_lost_quotes_the_book, after_a_loss_as_just_before, then_refused_until_a_clear, from_that_clear_on, answered_0_then_7_then_8 |
// | that one of its clauses applies at every moment | specs/Demand3 | every_moment, given_at |
// | that its premise follows from the calls' answers | specs/Demand3 | applied_by_calls |
// | that its premise is met in every market, with losses, at the last number and with conditions of one market alone | specs/Examples | given_with_losses, given_in_either_order, given_past_the_last, given_last_lost, given_in_texas, some_has_abc |
// | that it needs one market for both readers | proofs/TwoMarkets | two_markets, two_markets_disagree |
// | that idle and stale readers do not meet it | proofs/Unfaithful | shows_an_add, no_stale_readers, no_idle_readers |
// | ten levels a side: rows that are exact and leave none out, the first of which is the quote | specs/Depth | depth_holds, first_row_is_the_quote, depth_answered |
// | demand 3 of the depth: by any calls; from bytes; idle and stale readers do not meet it | specs/Depth | demand_3_of_depth_holds, demand_3_of_depth_from_bytes, no_stale_depths, no_idle_depths |
// | that a message refused with 1 to 5 acts as a lost one | proofs/Refused | refused_changes_nothing, refused_acts_as_lost |
// | that each contract leaves one outcome | specs/OneOutcome | one_outcome |

#![tactic(auto)]
