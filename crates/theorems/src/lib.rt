// Every theorem: specs/, a file for each of the six sentences that README.md names, the laws, and that calls exist.
// There is no code here.
#![tactic(auto)]
