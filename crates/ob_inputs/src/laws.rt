//! What holds of the definitions, for nodes of any type that a test tells apart.

ghost use Rattle.std.specs.Prelude.{◌≡◌, ℕ, suc, ◌+◌, Bool, true, false, List, [], length, Some, if◌then◌else◌};
ghost use Rattle.std.specs.Bool.{Decides};
ghost use Rattle.ob_inputs.specs.Same.{IsTest, is_in, at};
ghost use Rattle.ob_inputs.specs.Paths.{Path, Reached, leads, live, circular, OnlyNodes};
ghost use Rattle.ob_inputs.specs.Values.{by_inputs, LooksAt};
ghost use Rattle.ob_inputs.specs.Orders.{filled, InOrder};
ghost use Rattle.ob_inputs.specs.Chains.{Step, follow, LeadsInside};

/// The test for a path tells exactly where there is one.
#[tactic(auto, using(crate::proofs::PathLaws::leads_decides))]
pub fn paths_are_found<K>()
    ensures { (same : K → K → Bool) → IsTest same → (nodes : List K) (ins : K → List K) → OnlyNodes same nodes ins
        → (v w : K) → Decides (leads same nodes ins v w) (Path same ins v w) }
{}

/// The computed closure of a list of nodes has exactly the nodes that are reached from it.
#[tactic(auto, using(crate::proofs::PathLaws::live_decides))]
pub fn reached_nodes_are_found<K>()
    ensures { (same : K → K → Bool) → IsTest same → (nodes : List K) (ins : K → List K) → OnlyNodes same nodes ins
        → (observed : List K) (v : K) → Decides (live same nodes ins observed v) (Reached same ins observed v) }
{}

/// A value by recursion over inputs is made of the values of the inputs, with no count of turns.
#[tactic(auto, using(crate::proofs::ValueLaws::unfolds))]
pub fn values_follow_inputs<K, A>()
    ensures { (same : K → K → Bool) → IsTest same → (nodes : List K) (ins : K → List K) → OnlyNodes same nodes ins
        → (stop : K → A) (step : K → (K → A) → A) → LooksAt same ins step → (v : K)
        → by_inputs same nodes ins stop step v ≡ (if circular same nodes ins v then stop v else step v (by_inputs same nodes ins stop step)) }
{}

/// No other values are made of the values of the inputs in that way.
#[tactic(auto, using(crate::proofs::ValueLaws::alone))]
pub fn values_are_their_equation<K, A>()
    ensures { (same : K → K → Bool) → IsTest same → (nodes : List K) (ins : K → List K) → OnlyNodes same nodes ins
        → (stop : K → A) (step : K → (K → A) → A) → LooksAt same ins step → (f : K → A)
        → ((v : K) → f v ≡ (if circular same nodes ins v then stop v else step v f)) → (v : K) → f v ≡ by_inputs same nodes ins stop step v }
{}

/// Induction over inputs: what holds of circular nodes, and of each other node whose inputs it
/// holds of, holds of all.
#[tactic(auto, using(crate::proofs::ValueLaws::induct_test))]
pub fn induction_over_inputs<K>()
    ensures { (same : K → K → Bool) → IsTest same → (nodes : List K) (ins : K → List K) → OnlyNodes same nodes ins → (p : K → Bool)
        → ((v : K) → circular same nodes ins v ≡ true → p v ≡ true)
        → ((v : K) → circular same nodes ins v ≡ false → ((u : K) → is_in same u (ins v) ≡ true → p u ≡ true) → p v ≡ true)
        → (v : K) → p v ≡ true }
{}

/// Values that are filled in one after another, along a list in which the inputs of each node that
/// isn't circular stand before it, are those of the recursion over inputs.
#[tactic(auto, using(crate::proofs::OrderLaws::filled_from_nothing))]
pub fn nodes_in_order_get_their_values<K, A>()
    ensures { (same : K → K → Bool) → IsTest same → (nodes : List K) (ins : K → List K) → OnlyNodes same nodes ins
        → (stop : K → A) (step : K → (K → A) → A) → LooksAt same ins step → (order : List K) → InOrder same ins (circular same nodes ins) [] order
        → (v : K) → is_in same v order ≡ true
        → at same (filled same (circular same nodes ins) stop step [] order) v ≡ Some (by_inputs same nodes ins stop step v) }
{}

/// A chain whose places all stand in one list ends, or comes to a place a second time, within as
/// many turns as that list has places and one more: more turns give the same.
#[tactic(auto, using(crate::proofs::ChainLaws::turns_enough))]
pub fn chains_need_no_count<K, A>()
    ensures { (same : K → K → Bool) → IsTest same → (places : List K) (next : Bool → K → Step K A) (again : K → A) → LeadsInside same places next
        → (p : K) → is_in same p places ≡ true → (more : ℕ)
        → follow same next again (more + suc (length places)) [] p ≡ follow same next again (suc (length places)) [] p }
{}
