// The rule that reads the record: definitions alone, and facts made by hand that it is judged by. There is no code here.
#![tactic(auto)]
