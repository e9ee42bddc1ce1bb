//! Cases of a change of the network whose devices have lives: what it touches, the new outage
//! intervals, and the searches it takes.
/// In the last second, which the last case of the first log has, only the tie supplies S2. After
/// `life B1 0 4000; life T1 4000 -` the breaker's life ends in second 4000, and the tie's begins
/// and the tie is closed. With X1 up to 6000 the new device supplies S3 although its breaker is
/// open.
pub const LIVES: &'static str = "\
1970-01-01 1 | - | switch B1 open 3600 3 K1; switch W1 open 4200 3 K1; switch T1 close 4200 3 K1; \
    switch B1 close 7200 3 K1
the tie goes while it supplies: life T1 0 6000 => \
    6 2: S2: S1 3600 7200 1; S2 3600 4200 1; S2 6000 86400 -; S4 0 86400 -;
a device joins in an outage: device X1 BUS-A S1 closed 5000 - => \
    6 2: S1: S1 3600 5000 1; S2 3600 4200 1; S4 0 86400 -;
a bus more is searched for by none: bus BUS-B => 0 0:: S1 3600 7200 1; S2 3600 4200 1; S4 0 86400 -;
a section more has one run: section S5 3 => \
    0 0: S5: S1 3600 7200 1; S2 3600 4200 1; S4 0 86400 -; S5 0 86400 -;
the same life: life B2 0 - => 5 0:: S1 3600 7200 1; S2 3600 4200 1; S4 0 86400 -;
a life that differs behind the period alone: life B2 0 86400 => \
    5 0:: S1 3600 7200 1; S2 3600 4200 1; S4 0 86400 -;
a life that differs in the last second: life B2 0 86399 => \
    6 1: S2 S3: S1 3600 7200 1; S2 3600 4200 1; S2 86399 86400 -; S3 86399 86400 -; S4 0 86400 -;
1970-01-01 1 | life T1 0 6000 | switch B1 open 3600 3 K1; switch W1 open 4200 3 K1; \
    switch T1 close 4200 3 K1; switch B1 close 7200 3 K1
the tie stays for good: life T1 0 - => 5 2: S2: S1 3600 7200 1; S2 3600 4200 1; S4 0 86400 -;
1970-01-01 1 | - | -
the end of a life cuts off without a cutter: life B2 0 3600 => \
    2 1: S3: S3 3600 86400 -; S4 0 86400 -;
a device joins where nothing was switched: device X1 BUS-A S1 closed 5000 - => 2 1:: S4 0 86400 -;
a device joins behind the period: device X1 BUS-A S4 closed 86400 - => 1 0:: S4 0 86400 -;
an open device joins: device X1 BUS-A S4 open 0 - => 1 1:: S4 0 86400 -;
1970-01-01 1 | life B2 0 3600 | -
opened in the second after its life: switch B2 open 3600 4 K1 => \
    3 2:: S3 3600 86400 -; S4 0 86400 -;
1970-01-01 1 | life B2 0 3600 | switch B2 open 3600 4 K1
opened in the last second of its life: switch B2 open 3599 4 K1 => \
    3 3: S3: S3 3599 86400 2; S4 0 86400 -;
1970-01-01 1 | life B1 0 4000; life T1 4000 - | switch T1 close 4000 3 K1
lives turn before the switchings of their second: life T1 4001 - => \
    4 3: S1 S2: S1 4000 4001 -; S2 4000 4001 -; S4 0 86400 -;
1970-01-01 1 | life B1 0 4000 | switch W1 open 4000 3 K1
an opening cuts off before a life ends: life B1 0 4001 => \
    3 3: S1 S2: S1 4001 86400 -; S2 4000 86400 1; S4 0 86400 -;
1970-01-01 1 | life B1 0 4000 | -
a device takes the place of another: device X1 BUS-A S1 closed 4000 - => 2 1: S1 S2: S4 0 86400 -;
1970-01-02 1 | - | -
a life before the period: life B2 0 86400 => 1 1: S3: S3 86400 172800 -; S4 86400 172800 -;
a life behind the period: life B2 172800 - => 1 1: S3: S3 86400 172800 -; S4 86400 172800 -;
a life that begins in the last second: life B2 172799 - => \
    2 2: S3: S3 86400 172799 -; S4 86400 172800 -;
1970-01-02 1 | life B2 0 86400 | -
a life from before the period to behind it: life B2 172800 - => \
    1 0:: S3 86400 172800 -; S4 86400 172800 -;
1970-01-01 1 | life B2 1000 2000 | switch W1 open 3000 3 K1; switch W1 close 4000 3 K1
lives that do not meet: life B2 5000 6000 => \
    5 5: S3: S2 3000 4000 1; S3 0 5000 -; S3 6000 86400 -; S4 0 86400 -;
2024-01-01 366 | - | -
a device joins where its end was cut off for a year: device X1 S3 S4 closed 1704072200 - => \
    2 1: S4: S4 1704067200 1704072200 -;
1970-01-01 1 | - | switch B1 open 3600 3 K1; switch B1 close 7200 3 K1
entries name a device that comes later: life B1 5000 - => \
    4 3: S1 S2: S1 0 7200 -; S2 0 7200 -; S4 0 86400 -;
entries name a device that has gone: life B1 0 5000 => \
    4 2: S1 S2: S1 3600 86400 1; S2 3600 86400 1; S4 0 86400 -;
a run goes on where a life ends: life I1 0 5000 => \
    4 2: S1 S2 S3: S1 3600 86400 1; S2 3600 86400 1; S3 5000 86400 -; S4 0 86400 -;
1970-01-01 1 | - | switch B2 open 5000 4 K1
cut off by the end of a life and no more by an opening: device X1 BUS-A S3 closed 0 6000 => \
    3 3: S3: S3 6000 86400 -; S4 0 86400 -;
1970-01-01 1 | life T1 5000 - | switch B1 open 3600 3 K1; switch W1 open 3600 3 K1
closed before its life begins: switch T1 close 4000 3 K1 => \
    5 3: S2: S1 3600 86400 1; S2 3600 5000 1; S4 0 86400 -;
1970-01-01 1 | life B2 0 3600 | switch B2 open 3599 4 K1
the opening before the end of a life is withdrawn: withdraw 1 1 => \
    2 2: S3: S3 3600 86400 -; S4 0 86400 -;
an opening is corrected to the end of a life: correct 1 1 open 3600 4 K1 => \
    3 3: S3: S3 3600 86400 -; S4 0 86400 -;
";
