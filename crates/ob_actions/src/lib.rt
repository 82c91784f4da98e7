//! The actions of a run that see no trees: what the meaning of trees and the meaning of code share.
#![tactic(auto)]
