//! Cases of the outage intervals built from devices' lives and a switching log.
/// In the last case the breaker's and the switch's lives end in the second in which the tie's
/// begins.
pub const BUILT: &'static str = "\
1970-01-01 1 | - | -
nothing is switched => 1: S4 0 86400 -;
1970-01-01 1 | - | switch B1 open 3600 3 K1; switch W1 open 4200 3 K1; switch T1 close 4200 3 K1; \
    switch B1 close 7200 3 K1
the tie takes one section over => 5: S1 3600 7200 1; S2 3600 4200 1; S4 0 86400 -;
1970-01-01 1 | - | switch B1 open 4000 3 K1; switch B1 close 4000 3 K1
opened and closed in one second => 3: S4 0 86400 -;
1970-01-01 1 | - | switch B1 close 4000 3 K1; switch B1 open 4000 3 K1
closed and opened in one second => 2: S1 4000 86400 2; S2 4000 86400 2; S4 0 86400 -;
1970-01-01 1 | - | switch W1 open 0 3 K1; switch W1 close 1 3 K1
opened at the first second => 3: S2 0 1 1; S4 0 86400 -;
1970-01-01 1 | - | switch W1 open 86399 3 K1
opened at the last second => 2: S2 86399 86400 1; S4 0 86400 -;
1970-01-01 1 | - | switch B1 open 3600 3 K1; switch B1 close 4000 3 K1; \
    switch B1 open 4000 3 K1; switch B1 close 5000 3 K1
supplied and cut off again in one second => 5: S1 3600 5000 1; S2 3600 5000 1; S4 0 86400 -;
1970-01-01 1 | - | switch B1 open 3600 3 K1; switch B1 close 3600 3 K1; \
    switch W1 open 3600 3 K1; switch B1 open 3600 3 K1
cut off twice in the first second => 5: S1 3600 86400 4; S2 3600 86400 3; S4 0 86400 -;
1970-01-01 1 | - | switch W1 open 10 3 K1; switch W1 close 20 3 K1; switch W1 open 21 3 K1; \
    switch W1 close 30 3 K1
two runs with supply between them => 5: S2 10 20 1; S2 21 30 3; S4 0 86400 -;
1970-01-01 1 | - | switch B1 close 7200 3 K1; switch T1 close 4200 3 K1; switch B1 open 3600 3 K1
the opening is entered late => 4: S1 3600 4200 3; S2 3600 4200 3; S4 0 86400 -;
2024-01-01 1 | - | switch B1 open 1704070800 3 K1; switch T1 close 1704071400 3 K1; \
    switch T1 open 1704072000 3 K1
a day of 2024 => 4: S1 1704070800 1704071400 1; S1 1704072000 1704153600 3; \
    S2 1704070800 1704071400 1; S2 1704072000 1704153600 3; S4 1704067200 1704153600 -;
1970-01-01 1 | life B1 0 4000; life W1 0 4000; life T1 4000 - | switch T1 close 4000 3 K1
lives that turn in one second take one search => 3: S1 4000 86400 -; S4 0 86400 -;
";
