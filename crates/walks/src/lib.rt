// A walk over a log, record by record, whatever its records are: what it is, and its laws. There is no code here: a walk's loop is its
// own crate's, and its contract names the walk.
#![tactic(auto)]
