// Words of a line, and what each stands for: a number in decimal digits, or octets in hexadecimal
// ones. Definitions, theorems and types.
#![tactic(auto)]
