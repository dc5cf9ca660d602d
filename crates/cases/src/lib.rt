// Document 01's starred cases: the table stands in specs/Rows.antt, what its rows say in specs/Row.antt, the claim in specs/Claims.antt.
#![tactic(auto)]
