// Document 01 values to meet: the list and its one claim; and the dates of W-203. There is no code here.
#![tactic(auto)]
