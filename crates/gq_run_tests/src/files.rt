// The files that the test runs read, and the lines that their scripts print.

pub const SEVEN: &[u8] = b"INTERPRET QUERY () { PRINT 7 AS n; }\n";

pub const SEVEN_LINE: &[u8] = b"{\"error\":false,\"message\":\"\",\"results\":[{\"n\":7}]}\n";

const ARGUMENT: &[u8] =
    b"CREATE QUERY q(INT p) { PRINT p AS n; }\nINSTALL QUERY q\nRUN QUERY q(7)\nRUN QUERY q\n";

const ARGUMENTS: &[u8] = b"{\"q\":{\"p\":7}}";

// A graph of three persons, who know each other.
const LOADS: &[u8] =
    b"CREATE VERTEX person (PRIMARY_ID id STRING, age INT)\nCREATE DIRECTED EDGE knows (FROM person, TO person, w INT) WITH REVERSE_EDGE=\"known_by\"\nCREATE GRAPH g (person, knows)\nCREATE LOADING JOB j FOR GRAPH g {\n  LOAD \"p.csv\" TO VERTEX person VALUES ($0, $1);\n  LOAD \"k.csv\" TO EDGE knows VALUES ($0, $1, $2); }\nRUN LOADING JOB j\n";

pub const LOADS_LINE: &[u8] =
    b"{\"error\":false,\"message\":\"\",\"results\":[{\"file\":\"p.csv\",\"lines\":3,\"loaded\":3,\"short\":0,\"unreadable\":0},{\"file\":\"k.csv\",\"lines\":3,\"loaded\":3,\"short\":0,\"unreadable\":0}]}\n";

// The oldest person of each parity, and the sum of their ages.
const GROUPS: &[u8] =
    b"INTERPRET QUERY () FOR GRAPH g {\n  GroupByAccum<INT parity, SumAccum<INT> total, MaxAccum<INT> oldest> @@g;\n  S = {person.*};\n  T = SELECT s FROM S:s ACCUM @@g += (s.age % 2 -> s.age, s.age);\n  PRINT @@g; }\n";

pub const GROUPS_LINE: &[u8] =
    b"{\"error\":false,\"message\":\"\",\"results\":[{\"@@g\":[{\"parity\":0,\"total\":2,\"oldest\":2},{\"parity\":1,\"total\":4,\"oldest\":3}]}]}\n";

const SUMS: &[u8] =
    b"INTERPRET QUERY () FOR GRAPH g {\n  MapAccum<STRING, INT> @@m;\n  @@m += (\"b\" -> 1); @@m += (\"a\" -> 2); @@m += (\"b\" -> 3);\n  PRINT @@m, @@m.get(\"z\") AS z, @@m.size() AS n; }\n";

pub const SUMS_LINE: &[u8] =
    b"{\"error\":false,\"message\":\"\",\"results\":[{\"@@m\":{\"a\":2,\"b\":4},\"z\":0,\"n\":2}]}\n";

const INSERT: &[u8] =
    b"INSERT INTO person VALUES (\"d\", 4)\nINTERPRET QUERY () FOR GRAPH g { S = {person.*}; PRINT S.size() AS n; }\n";

pub const INSERT_LINE: &[u8] = b"{\"error\":false,\"message\":\"\",\"results\":[{\"n\":4}]}\n";

// A query that isn't installed when it is run.
const EARLY: &[u8] = b"CREATE QUERY q () { PRINT 7 AS n; }\nRUN QUERY q\n";

pub const EARLY_LINE: &[u8] = b"{\"error\":true,\"message\":\"line 2: not installed q\"}\n";

// The friends of one's friends who aren't one's own friends, in a graph of seven persons.
const FRIENDS: &[u8] =
    b"CREATE VERTEX person (PRIMARY_ID name STRING, name STRING, age INT)\nCREATE UNDIRECTED EDGE friendship (FROM person, TO person, day STRING)\nCREATE GRAPH social (person, friendship)\nUSE GRAPH social\nCREATE LOADING JOB j FOR GRAPH social {\n  LOAD \"person.csv\" TO VERTEX person VALUES ($\"name\", $\"name\", $\"age\") USING header=\"true\", separator=\",\";\n  LOAD \"friendship.csv\" TO EDGE friendship VALUES ($0, $1, $2) USING header=\"true\", separator=\",\"; }\nRUN LOADING JOB j\nCREATE QUERY strangers (VERTEX<person> p) FOR GRAPH social {\n  OrAccum @met = false;\n  AvgAccum @@age;\n  Start = {p};\n  Friends = SELECT t FROM Start:s -(friendship:e)-> person:t ACCUM t.@met += true, s.@met += true;\n  Theirs = SELECT t FROM Friends -(:e)-> :t WHERE t.@met == false POST_ACCUM @@age += t.age;\n  PRINT Theirs;\n  PRINT @@age; }\nINSTALL QUERY strangers\nRUN QUERY strangers(\"Tom\")\n";

pub const FRIENDS_LINES: &[u8] =
    b"{\"error\":false,\"message\":\"\",\"results\":[{\"file\":\"person.csv\",\"lines\":7,\"loaded\":7,\"short\":0,\"unreadable\":0},{\"file\":\"friendship.csv\",\"lines\":7,\"loaded\":7,\"short\":0,\"unreadable\":0}]}\n{\"error\":false,\"message\":\"\",\"results\":[{\"Theirs\":[{\"v_id\":\"Kevin\",\"v_type\":\"person\",\"attributes\":{\"name\":\"Kevin\",\"age\":28,\"@met\":false}},{\"v_id\":\"Amily\",\"v_type\":\"person\",\"attributes\":{\"name\":\"Amily\",\"age\":22,\"@met\":false}},{\"v_id\":\"Nancy\",\"v_type\":\"person\",\"attributes\":{\"name\":\"Nancy\",\"age\":20,\"@met\":false}}]},{\"@@age\":23.333333}]}\n";

// The first edge faults in its sum, the third one in its divisor.
const FAULT: &[u8] =
    b"CREATE VERTEX person (PRIMARY_ID id STRING, age INT)\nCREATE DIRECTED EDGE knows (FROM person, TO person, w INT)\nCREATE GRAPH g (person, knows)\nCREATE LOADING JOB j FOR GRAPH g {\n  LOAD \"p.csv\" TO VERTEX person VALUES ($0, $1);\n  LOAD \"wide.csv\" TO EDGE knows VALUES ($0, $1, $2); }\nRUN LOADING JOB j\nINTERPRET QUERY () FOR GRAPH g {\n  SumAccum<INT> @@s;\n  S = {person.*};\n  T = SELECT t FROM S:s -(knows:e)-> person:t ACCUM @@s += e.w + 1, @@s += 1 / (e.w - 30); }\n";

pub const FAULT_LINES: &[u8] =
    b"{\"error\":false,\"message\":\"\",\"results\":[{\"file\":\"p.csv\",\"lines\":3,\"loaded\":3,\"short\":0,\"unreadable\":0},{\"file\":\"wide.csv\",\"lines\":3,\"loaded\":3,\"short\":0,\"unreadable\":0}]}\n{\"error\":true,\"message\":\"line 8: number out of range\"}\n";

// The lines of the sample of three people.
pub const SAMPLE_LINES: &[u8] =
    b"{\"error\":false,\"message\":\"\",\"results\":[{\"file\":\"people.csv\",\"lines\":3,\"loaded\":3,\"short\":0,\"unreadable\":0},{\"file\":\"knows.csv\",\"lines\":6,\"loaded\":6,\"short\":0,\"unreadable\":0}]}\n{\"error\":false,\"message\":\"\",\"results\":[{\"people\":3,\"reached\":3,\"total\":9,\"top\":4}]}\n";

const P_CSV: &[u8] = b"a,1\nb,2\nc,3\n";

const K_CSV: &[u8] = b"a,b,10\na,c,20\nb,c,30\n";

const WIDE_CSV: &[u8] = b"a,b,9223372036854775807\na,c,20\nb,c,30\n";

const PERSONS: &[u8] =
    b"name,age\nTom,40\nDan,34\nJenny,25\nKevin,28\nAmily,22\nNancy,20\nJack,26\n";

const FRIENDSHIPS: &[u8] =
    b"person1,person2,date\nTom,Dan,2017-06-03\nTom,Jenny,2015-01-01\nDan,Jenny,2016-08-03\nJenny,Amily,2015-06-08\nDan,Nancy,2016-01-03\nNancy,Jack,2017-03-02\nDan,Kevin,2015-12-30\n";

/// Each file: its name, and the parts that it consists of, in order.
pub const FILES: [(&str, &[&[u8]]); 17] = [
    ("seven", &[SEVEN]),
    ("twice", &[SEVEN, SEVEN]),
    ("loads", &[LOADS]),
    ("seven_loads", &[SEVEN, LOADS]),
    ("groups", &[LOADS, GROUPS]),
    ("sums", &[LOADS, SUMS]),
    ("insert", &[LOADS, INSERT]),
    ("friends", &[FRIENDS]),
    ("fault", &[FAULT]),
    ("argument", &[ARGUMENT]),
    ("early", &[EARLY]),
    ("a.json", &[ARGUMENTS]),
    ("p.csv", &[P_CSV]),
    ("k.csv", &[K_CSV]),
    ("wide.csv", &[WIDE_CSV]),
    ("person.csv", &[PERSONS]),
    ("friendship.csv", &[FRIENDSHIPS]),
];
