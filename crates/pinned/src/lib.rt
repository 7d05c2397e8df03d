// Any two permitted outcomes of a public function are equal. There is no code here.
#![tactic(auto)]
