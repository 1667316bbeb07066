// What a caller concludes from the promises of the libraries: each conclusion stands in specs/ in plain words, and its theorem in proofs/
// needs the whole of the promise, so that a promise that says less is noticed here. No code.
#![tactic(auto)]
