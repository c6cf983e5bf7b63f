//! Definitions alone: the rules of well-formedness. Each is the list of the places at which a function, or what stands
//! outside functions, breaks it, in text order; a module is refused at the first place of the first rule that has one.
#![tactic(auto)]
