/// How often a scheduled event comes again (WP-Cron's `wp_get_schedules`: hourly, twicedaily,
/// daily).
#[derive(Clone, Copy, Debug, PartialEq, Eq)]
pub enum Every {
    Once,
    Hourly,
    TwiceDaily,
    Daily,
}
