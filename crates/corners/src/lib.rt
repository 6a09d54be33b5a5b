// Document 01's corners and sample sheet, proved.
#![tactic(auto)]
