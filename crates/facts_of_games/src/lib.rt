//! Small games worked out by hand, which hold the definitions of the game, of printed strategies and of their texts.
#![tactic(auto)]
