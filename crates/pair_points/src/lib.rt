// A contour's walk as points (specs/Points.antt): zero edges dropped and edges of one direction
// made one, so that two such lists merge a corner a turn. Definitions, and the law that their merge
// is the pair's contour. Leans on pair.
#![tactic(auto)]
