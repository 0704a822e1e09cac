// The laws of walks and of readers of parts. No code.

#![tactic(auto)]
