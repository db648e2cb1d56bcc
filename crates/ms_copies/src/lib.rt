// The definitions of specs/ that say which ground module core rules have over a base.
#![tactic(auto)]
