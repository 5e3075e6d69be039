//! The laws. The functions do nothing: each names what is proved.

ghost use Rattle.permutation.specs.Stores.{StoresBegin, StoresAreSorts};
ghost use Rattle.permutation.specs.Sortings.{SortsAreSteps};
ghost use Rattle.permutation.specs.Loads.{LoadsAreOnPermutations};
ghost use Rattle.permutation.specs.Permutations.{OrdersArePermutations, PermutationsAreOrders, WordsHaveSlots};

/// A sorted order of the live slots, by words of names that agree with the node's, makes its permutation; and what a
/// permutation has at its first places is such an order. The words that are made of slots have those at their first
/// places.
pub fn orders_are_permutations()
    ensures makes { OrdersArePermutations }
    ensures is { PermutationsAreOrders }
    ensures words { WordsHaveSlots }
{}

/// Each turn of the machine that stores a permutation is a store by who holds the node, where that is the node's by
/// what is known of it; and each such store is a step of a party that has a stage, and leaves that.
pub fn stores_are_sorts()
    ensures begins { StoresBegin }
    ensures turns { StoresAreSorts }
    ensures steps { SortsAreSteps }
{}

/// Each turn of the machine that loads a permutation is a load of one.
pub fn loads_are_on_permutations()
    ensures { LoadsAreOnPermutations }
{}
