// No code: in a built memory the receive unit, the counters and the status write into the receive area and the SCB alone.

#![tactic(auto)]
