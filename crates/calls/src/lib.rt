// No code: the definitions of the calls on bytes, refusals first, then the chip under the record's image. Every exported promise cites one of
// them. What C links is lentoquist_c, which is held to them.

#![tactic(auto)]
