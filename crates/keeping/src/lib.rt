// A sound table, as facts; every call keeps it sound, and what a call's lines say of the streams is what the table shows: see
// specs/ and proofs/.
#![tactic(auto)]
