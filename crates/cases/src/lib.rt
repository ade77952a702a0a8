// 01's cases beside each edge that are marked P, as one table in specs/, proved by one statement.
// Nothing here runs.
#![tactic(auto)]
