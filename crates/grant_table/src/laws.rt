// What holds of a slot over every list of requests.
ghost use Rattle.grant_table.specs.Admitting.{FollowTheRules, CarryOutInOrder, AnswerRepeatsAlike};

/// A slot admits as the server's rules say.
pub fn slots_follow_the_rules()
    ensures { FollowTheRules }
{}

/// Whatever requests come, those that are carried out have the numbers behind the slot's last one, in
/// order, each once and none left out.
pub fn slots_carry_out_in_order()
    ensures { CarryOutInOrder }
{}

/// Behind a request that was carried out, whatever comes until the next one that is, its repeat gets the
/// same answer.
pub fn slots_answer_repeats_alike()
    ensures { AnswerRepeatsAlike }
{}
