// The three demands of the letter as theorems, and the P lines of document 01 as one table: the page to open first.
// All of it is in specs/: Demand1, Demand2 and Demand3; Tie, which shows that each function's own clause is the equation spoken of;
// Unique, that a promise allows one result only; Table. A reader who believes the definitions that these cite need read nothing else.
// There is no code to run.
#![tactic(auto)]
