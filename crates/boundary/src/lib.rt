// What the functions for C have in common besides `telling`: what each leaves in a lent buffer, the
// places of a message's parts, and what a caller can tell from an answer. It has definitions and
// theorems, and no function.
#![tactic(auto)]
