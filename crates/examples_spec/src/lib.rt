// 01's starred examples, E1 to E10, and that of 02's ticket 6 as one table that one fact covers: each row applies the definitions that an
// operation's contract cites. Beside it where programs stray, masses in binary32 (02, ticket 5), and queries of cells (02, ticket 6), a
// table and a fact each. Definitions (specs/) and facts alone. Relies on the crates that define the operations.
#![tactic(auto)]
