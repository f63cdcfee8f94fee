// How tightly every answer is pinned: cases that come out as the rules say, and the wrong answers that the contracts shut out. All of it is in specs/.
#![tactic(auto)]
