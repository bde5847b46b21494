// The morning report in the words of document 02, M-103. There is no code here; the pass over the blocks in turn is proved to print it.
#![tactic(auto)]
