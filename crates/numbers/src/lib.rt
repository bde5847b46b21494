// 01's "Numbers to try", the cases marked P. There is no code here; they are proved for the rules that the calls' contracts cite.
#![tactic(auto)]
