//! What holds of every run.
ghost use Rattle.rambo_run.specs.Claims.{
  EveryRunIsAtomic,
  EveryRunHasOneOrder,
  EveryRunsMarksDiffer,
  EveryRunGivesNoOther,
  EveryRunAgrees,
  RepliesAreFresh,
  OneTagOneCopy,
  TagsFollowAnswers,
};
ghost use Rattle.rambo_run.specs.Configurations.{
  CollectionRepliesAreFresh,
  RemovedPlacesAreCollected,
  CollectionsNeverFall,
  FirstCollectionsAre,
  FirstCollectionsNeverFall,
  RemovedPlacesAreTold,
  ToldCollectionsAreWhole,
  DecisionsStand,
  LaterPhasesRead,
  LaterSetsRise,
  LaterPhasesMeet,
};
ghost use Rattle.rambo_run.specs.Journals.{NodesAreReplayed};
ghost use Rattle.rambo_run.specs.Legal.{RunsGoOn, OthersStay, BeginningsHold, CopiesAreKept};

use rambo_names::Quorums;
use rambo_sequence::{one_sequence, one_store_order};

/// For each key the given sequence of a run is a proper order. Each answered call of the key is in it, and else only
/// sets of the key, none of them twice. An ordinary map, asked in this order, gives each answer that was given. What
/// was answered before a call was made comes before it (Herlihy and Wing, "Linearizability", TOPLAS 1990).
pub fn given_sequences_are_proper<Q: Quorums>()
    ensures proper { EveryRunIsAtomic Q.system }
{}

/// One order explains a run. No call occurs twice in the given sequences. The given order is one order of them, and the
/// only one, as `marks_differ` says. It is proper for all keys (Herlihy and Wing, "Linearizability", TOPLAS 1990).
pub fn one_order_explains<Q: Quorums>()
    ensures order { EveryRunHasOneOrder Q.system }
{}

/// No two marks of a run are of one call, and no two of one key tie. That is, under one tag there is at most one set,
/// and no two gets whose calls are at one place. So the given sequence of a key is the only list of the calls of its
/// marks by their tags (`one_sequence` of `rambo_sequence`). And the given order is the only one of the given sequences
/// (`one_store_order`).
pub fn marks_differ<Q: Quorums>()
    ensures differ { EveryRunsMarksDiffer Q.system }
    ensures alone { EveryRunGivesNoOther Q.system }
{
    one_sequence();
    one_store_order();
}

/// Where two nodes, at one moment of a run or at two, hold a configuration at one place, it is the same.
pub fn nodes_agree<Q: Quorums>()
    ensures agree { EveryRunAgrees Q.system }
{}

/// Each reply that a phase counts was given by a node that held all that the phase's node held when the phase began.
/// The phase's node holds all that the other then held. Where another node gave it, that one had heard a letter that
/// the phase's node sent it since the phase began. The reply came in the letter that was sent then and was delivered
/// since. The phase began with the map that its node had there, whose floor is its lowest place. Its sender's map had
/// no place above the phase.
pub fn replies_are_fresh<Q: Quorums>()
    ensures fresh { RepliesAreFresh Q.system }
{}

/// The node of each name is what its own changes make, in their order, of the node that it was at first. Its own
/// changes are those that steps meant for it which weren't refused.
pub fn nodes_are_replayed<Q: Quorums>()
    ensures replayed { NodesAreReplayed Q.system }
{}

/// Each reply that an open collection counts was given by a node that held all that the collecting node held when the
/// current question began. The collecting node holds all that the other then held. Where another node gave it, that one
/// had heard a letter that the collecting node sent it since the question began. The reply came in the letter that was
/// sent then and was delivered since. As the question began, the collecting node's own reply was the only one.
pub fn collection_replies_are_fresh<Q: Quorums>()
    ensures fresh { CollectionRepliesAreFresh Q.system }
{}

/// A place that a node's map has removed was collected before. A step of the collecting node opened the collection,
/// when the place was its lowest and it knew of the next one. A quorum of the place's configuration replied when each
/// held all that the node had held then. The node held all that they had reported when a step of it turned to a quorum
/// of the next place's configuration. Each of those came to hold all that the node held as it turned, before a step of
/// it ended the collection, when the place was still its lowest. That was before the place was seen as removed.
pub fn removed_places_are_collected<Q: Quorums>()
    ensures collected { RemovedPlacesAreCollected Q.system }
{}

/// What collections carry from place to place never falls. Each collection of a next place was opened after one of this
/// place was over. When its node turned to its second quorum, it held at least what the node of that one held when it
/// did.
pub fn collections_never_fall<Q: Quorums>()
    ensures carried { CollectionsNeverFall Q.system }
{}

/// Of the collections of a place that a node's map has removed one ended first. Each collection of the next place was
/// opened after that. When its node turned to its second quorum, it held at least what the node of the first one held
/// when it did. So, of the collections that ended first at their places, each was over before the next one began. What
/// they carry never falls: no copy, no tag and no end of the map.
pub fn first_collections_never_fall<Q: Quorums>()
    ensures first { FirstCollectionsAre Q.system }
    ensures carried { FirstCollectionsNeverFall Q.system }
{}

/// Let a phase begin after a call's propagation was met, whatever the configurations of the two. Once it is met, its
/// node holds of the call's key at least the tag that was propagated.
pub fn later_phases_read<Q: Quorums>()
    ensures read { LaterPhasesRead Q.system }
{}

/// A set whose query begins after a call's propagation was met, on the same key, takes a greater tag than the
/// propagated one. It takes it by the step that advances its query.
pub fn later_sets_rise<Q: Quorums>()
    ensures raised { LaterSetsRise Q.system }
{}

/// A phase that begins after a call's propagation was met, and is met, has a place in common with it or lies above it.
pub fn later_phases_meet<Q: Quorums>()
    ensures met { LaterPhasesMeet Q.system }
{}

/// What two nodes hold of a key, at one moment of a run or at two, is the same if its tag is.
pub fn one_tag_one_copy<Q: Quorums>()
    ensures copy { OneTagOneCopy Q.system }
{}

/// Of two marked calls of a key, let the first have been answered before the second was made. Then the second has no
/// lesser tag, and a greater one where it is a set. Marked are the sets that took a tag and the gets that were
/// answered.
pub fn tags_follow_answers<Q: Quorums>()
    ensures follow { TagsFollowAnswers Q.system }
{}

/// A place that a node's map has removed was reported as collected, by the advance of a collection in an earlier step.
pub fn removed_places_are_told<Q: Quorums>()
    ensures told { RemovedPlacesAreTold Q.system }
{}

/// A place that a step reports as collected was collected, by that step or one before it: as
/// `removed_places_are_collected` says of a place that is removed.
pub fn told_collections_are_whole<Q: Quorums>()
    ensures whole { ToldCollectionsAreWhole Q.system }
{}

/// The configuration that a step reports as decided for a place is the one there. The node that reported it holds it
/// after that step, and so no node holds another one there (`nodes_agree`).
pub fn decisions_stand<Q: Quorums>()
    ensures stand { DecisionsStand Q.system }
{}

/// A run goes on by one more step that isn't refused: the world is then what that step makes of it. If no step of a
/// list is refused, none of the list with this step is. A step leaves unchanged each node that it doesn't mean. The
/// letters, calls and answers of a longer run go on from those of its beginning. No step of that beginning is refused
/// if none of the longer run is. Each node of the longer run holds at least the copies that it held there.
pub fn runs_go_on<Q: Quorums>()
    ensures more { RunsGoOn Q.system }
    ensures others { OthersStay Q }
    ensures beginnings { BeginningsHold Q.system }
    ensures kept { CopiesAreKept Q.system }
{}
