// What the network says of that of a world, for the crates above.
ghost use Rattle.world_network.specs.Shows.{PendingIsShown, PostsAreShown, AllMarksAreShown, AllPostingsAreShown};

/// Where a network shows that of a world, it goes on showing it: the next pending message is the world's, a
/// message that is sent is sent there with the same line, marks are set there, and several messages are sent there
/// with the same lines, also up to the limit of kept bytes.
pub fn network_shows()
    ensures pending { PendingIsShown }
    ensures posts { PostsAreShown }
    ensures marks { AllMarksAreShown }
    ensures postings { AllPostingsAreShown }
{}
