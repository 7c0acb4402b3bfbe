// What holds of every call's dealings with the drives, for the crates above.
ghost use Rattle.load_law.specs.Load.{EachCallSendsFew};

/// From its begin under a grant, whatever replies come and whichever components time out, a call sends in all at most six
/// commands for each component of the file and each stripe that it reaches; one that reaches none, as if it reached one.
pub fn each_call_sends_few()
    ensures { EachCallSendsFew }
{}
