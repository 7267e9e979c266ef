// No code: what a public function promises, and that such a promise permits one outcome, for every crate above.
#![tactic(auto)]
