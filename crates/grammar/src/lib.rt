// The grammars of Selectors Level 3 and CSS Syntax Level 3 where html2text 0.17.4 agrees with them (specs/), and the laws that what they write is read whole (proofs/).
#![tactic(auto)]
