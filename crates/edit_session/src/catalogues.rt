//! The catalogues of a session.

use fan_points::Fans;
use fitting_tables::Fittings;
use friction_table::Friction;
use size_catalogue::Sizes;

/// What the sections and the fans of a project are chosen from.
#[derive(Drop)]
pub(crate) struct Catalogues {
    /// The sizes.
    pub sizes: Sizes,
    /// The friction of these sizes.
    pub friction: Friction,
    /// The fittings.
    pub fittings: Fittings,
    /// The fans.
    pub fans: Fans,
}
