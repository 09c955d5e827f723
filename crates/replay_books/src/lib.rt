//! What is kept of the nodes while a list of source events is read, as definitions: entries for requests, rows for nodes
//! and tables for all. Nothing of it runs.
#![tactic(auto)]
